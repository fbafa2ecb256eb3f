// The limits of the small bench cutter's controller, tested in a job that has opened.

ghost use Rattle.std.specs.Prelude.{◌≡◌, ◌-◌};
ghost use Rattle.paper.specs.Job.{all_from};
ghost use Rattle.small.specs.Small.{terms_small, job_small};

use job::OpenJob;

// The lowest and the highest coordinate of a box end.
const LOWEST: i64 = -64;

const HIGHEST: i64 = 64;

// The most terms of a polynomial.
const MOST_TERMS: u64 = 16;

// No polynomial has too many terms.
fn polynomials_small(job: OpenJob<'_>) -> bool
    ensures { result ≡ all_from (terms_small job.entry.bytes.now) 1 (job.entry.n - 1) }
{
    (1..job.n).all(|k| job.polynomial_terms(k) <= MOST_TERMS)
}

// A job that opens is within the limits.
pub fn job_small(job: OpenJob<'_>) -> bool
    ensures { result ≡ job_small job.entry.bytes.now }
{
    boxes::box_between(LOWEST, HIGHEST, job.n, job.body(0)) && polynomials_small(job)
}
