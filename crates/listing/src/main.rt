// The listing of document 01: reads one job from standard input and prints its lines. What is printed is `lines::put_listing`'s; here
// is nothing but the reading and the writing. As in `seams`, over other rooms and another text: one function for both would take three sizes and the
// function that prints.

#![tactic(auto)]

mod lines;

use std::io;
use std::io::Write;

// Room for the longest job and one byte more, so that a longer one is seen.
const JOB_ROOM: usize = 2049;
// Room for 4,096 places in up to four axes.
const PLACES_ROOM: usize = 49152;
// Room for the first line and 4,096 lines of places.
const TEXT_ROOM: usize = 978992;

fn main(rt: HostRuntime) -> io::Result<()> {
    let mut job = input::room::<JOB_ROOM>();
    let got = input::read_full(&mut rt.stdin(), &mut job)?;
    let mut places = input::room::<PLACES_ROOM>();
    let mut out = input::room::<TEXT_ROOM>();
    let end = lines::put_listing(&job[..got], &mut places, &mut out);
    rt.stdout().write_all(&out[..end])
}
