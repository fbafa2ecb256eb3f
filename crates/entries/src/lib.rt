// The contents: n + 1 entries, each with the offset and the length of a body.

#![tactic(auto)]

ghost use Rattle.std.specs.Prelude.{◌≡◌, ◌+◌, ◌*◌, ◌≤◌, length};
ghost use Rattle.paper.specs.Job.{entry_offset, entry_length, contents_end, polynomial_length_ok, length_ok, entries_ok, contents_ok, body};
ghost use Rattle.bits.specs.Axes.{Axes};
ghost use Rattle.bits.specs.Read.{Reads};
ghost use Rattle.entries.specs.Parts.{PartInside, BeginsAt};

use bits::read;

// Entry k: where body k begins, and its length.
#[tactic(auto, unfolding(paper::specs::Job::entry_offset, paper::specs::Job::entry_length))]
fn entry(s: &[u8], k: usize) -> (usize, usize)
    requires { 4 * k + 8 ≤ length s.now }
    ensures offset { Reads 65536 (entry_offset s.now k) result.0 }
    ensures length { Reads 65536 (entry_length s.now k) result.1 }
{
    (
        read::word(s, 4 * k + 4) as usize,
        read::word(s, 4 * k + 6) as usize,
    )
}

// 8 bytes a term, 1 term at least, at most the limit.
#[tactic(auto, using(paper::proofs::TermLimit::term_limit_most), unfolding(paper::specs::Job::polynomial_length_ok))]
fn polynomial_length_ok(n: usize, l: usize) -> bool
    requires { Axes n }
    ensures { result ≡ polynomial_length_ok n l }
{
    l % 8 == 0 && 8 <= l && l <= 8 * limits::term_limit(n)
}

// A body's length is right for its kind: box, polynomial or start.
#[tactic(auto, unfolding(paper::specs::Job::length_ok))]
pub fn length_ok(n: usize, k: usize, l: usize) -> bool
    requires { Axes n }
    ensures { result ≡ length_ok n k l }
{
    if k == 0 {
        l == 4 * n
    } else if k == n {
        l == 3 * n
    } else {
        polynomial_length_ok(n, l)
    }
}

// The first body follows the contents, each other begins where the last ended, the last ends the job.
fn entries_ok(n: usize, s: &[u8]) -> bool
    requires { (Axes n) × (contents_end n ≤ length s.now) }
    ensures { result ≡ entries_ok n s.now (n + 1) 0 (contents_end n) }
{
    let mut at = 4 * n + 8;
    for k in 0..n + 1 {
        let (offset, length) = entry(s, k);
        if offset != at || !length_ok(n, k, length) {
            return false;
        }
        at += length;
    }
    at == s.len()
}

// The contents are whole, the bodies adjacent and of the right lengths.
#[tactic(auto, unfolding(paper::specs::Job::contents_ok, paper::specs::Job::contents_end))]
pub fn contents_ok(n: usize, s: &[u8]) -> bool
    requires { Axes n }
    ensures { result ≡ contents_ok n s.now }
{
    4 * n + 8 <= s.len() && entries_ok(n, s)
}

// Body k of a job whose contents place it inside the job.
pub fn part_of(job: &[u8], k: usize) -> &[u8]
    requires { PartInside job.now k }
    ensures place { BeginsAt job.entry (entry_offset job.now k) result }
    ensures bytes { result.now ≡ body job.now k }
{
    let (from, length) = entry(job, k);
    &job[from..from + length]
}
