// Writing jobs: document 02, request 2.2. The loose bodies are tested first; then the writer lays contents and bodies in the caller's buffer.

#![tactic(auto)]

ghost use Rattle.std.specs.Prelude.{◌≡◌};
ghost use Rattle.assembly.specs.Assembled.{handed};
ghost use Rattle.assembly.specs.Written.{written, buffer_written};
ghost use Rattle.assembly.specs.Answers.{written_as};

use paper::Refusal;

// Writing a job: a refusal, or its length. The job stands in the buffer from its front on; a refusal touches nothing.
// Eight parameters, not a struct: so C hands them over.
pub fn write_job<'a>(
    n: usize,
    bias: u8,
    bounds: &'a [u8],
    polynomial1: &'a [u8],
    polynomial2: &'a [u8],
    polynomial3: &'a [u8],
    start: &'a [u8],
    buffer: &mut [u8],
) -> Result<u64, Refusal>
    ensures answer { written_as result ≡ written (handed n bias bounds.now polynomial1.now polynomial2.now polynomial3.now start.now) buffer.old }
    ensures bytes { buffer.new ≡ buffer_written (handed n bias bounds.now polynomial1.now polynomial2.now polynomial3.now start.now) buffer.old }
{
    if !limits::dimension_ok(n) {
        return Err(Refusal::Dimension);
    }
    let bodies = loose::arranged(n, bounds, polynomial1, polynomial2, polynomial3, start);
    loose::test_form(n, bodies)?;
    if buffer.len() < loose::job_length(n, bodies) {
        return Err(Refusal::Room);
    }
    Ok(writer::lay(buffer, n, bias, bodies) as u64)
}
