// The parts of a job laid in a buffer from a position on: contents and bodies. Each function answers the position behind what it laid. Bodies come as
// an array, body k at index k: box, polynomials, start; those past index n are not read. Kept as an array with n beside it, not a slice of n + 1: no
// law then has a hypothesis on the length of a list (docs/DECISIONS.md), and nothing is shorter with the slice. Buffer and
// position stay two parameters, as in `decimals`.

#![tactic(auto)]

ghost use Rattle.std.specs.Prelude.{pos, ◌+◌, ◌*◌, ◌≤◌, length};
ghost use Rattle.paper.specs.Bytes.{word_bytes};
ghost use Rattle.paper.specs.Job.{contents_end};
ghost use Rattle.assembly.specs.Assembled.{entries_of, bodies_of, contents_of, job_from};
ghost use Rattle.laying.specs.Laid.{body_at, Laid};

// The low 16 bits of a number, the low byte first.
fn lay_word(buffer: &mut [u8], at: usize, word: usize) -> usize
    requires { at + 2 ≤ length buffer.old }
    ensures { Laid buffer.old at (word_bytes (pos word)) buffer.new result }
{
    buffer[at..at + 2].copy_from_slice(&((word % 65536) as u16).to_le_bytes());
    at + 2
}

// The entries: offset and length of each body. The first body follows the contents, each other begins where the last ended.
fn lay_entries(buffer: &mut [u8], at: usize, n: usize, bodies: [&[u8]; 5]) -> usize
    requires { (n ≤ 4) × (at + (4 * n + 4) ≤ length buffer.old) × (contents_end n + length (bodies_of (body_at bodies) 0 (n + 1)) ≤ length buffer.old) }
    ensures { Laid buffer.old at (entries_of (body_at bodies.entry) 0 (n + 1) (contents_end n)) buffer.new result }
{
    let mut next = at;
    let mut offset = 4 * n + 8;
    for k in 0..n + 1 {
        let length = bodies[k].len();
        let middle = lay_word(buffer, next, offset);
        next = lay_word(buffer, middle, length);
        offset += length;
    }
    next
}

// The contents of a job for which there is room.
pub fn lay_contents(buffer: &mut [u8], at: usize, n: usize, bias: u8, bodies: [&[u8]; 5]) -> usize
    requires { (n ≤ 4) × (at + length (job_from n bias (body_at bodies)) ≤ length buffer.old) }
    ensures { Laid buffer.old at (contents_of n bias (body_at bodies.entry)) buffer.new result }
{
    buffer[at..at + 4].copy_from_slice(&[1, n as u8, (n + 1) as u8, bias]);
    lay_entries(buffer, at + 4, n, bodies)
}

// A body. As `decimals::put_word`, but it says what the whole buffer then is. Byte by byte: the library's copy of a slice is a call of
// `memmove`, which the archive for C would need from outside.
fn lay_body(buffer: &mut [u8], at: usize, body: &[u8]) -> usize
    requires { at + length body.now ≤ length buffer.old }
    ensures { Laid buffer.old at body.now buffer.new result }
{
    for (k, byte) in body.iter().enumerate() {
        buffer[at + k] = *byte;
    }
    at + body.len()
}

// The bodies of a job, one behind the other.
pub fn lay_bodies(buffer: &mut [u8], at: usize, n: usize, bodies: [&[u8]; 5]) -> usize
    requires { (n ≤ 4) × (at + length (bodies_of (body_at bodies) 0 (n + 1)) ≤ length buffer.old) }
    ensures { Laid buffer.old at (bodies_of (body_at bodies.entry) 0 (n + 1)) buffer.new result }
{
    let mut next = at;
    for k in 0..n + 1 {
        next = lay_body(buffer, next, bodies[k]);
    }
    next
}
