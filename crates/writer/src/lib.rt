// A writer over the caller's buffer and its position: it lays contents first and bodies behind them. The functions of `laying` do the work. `lay` has
// plain parameters and serves every other caller; `put_contents` and `put_bodies` are the two functions of the form that document 01 names.

#![tactic(auto)]

ghost use Rattle.std.specs.Prelude.{◌≡◌, ◌+◌, ◌≤◌, length};
ghost use Rattle.assembly.specs.Assembled.{bodies_of, contents_of, job_from};
ghost use Rattle.laying.specs.Laid.{body_at, Laid};
ghost use Rattle.writer.specs.Advanced.{advanced};

#[derive(Drop)]
pub struct Writer<'a> {
    pub buffer: &'a mut [u8],
    pub at: usize,
}

impl<'a> Writer<'a> {
    // The contents of a job, laid at the position of a writer that is lent.
    fn add_contents<'b>(&mut self, n: usize, bias: u8, bodies: [&'b [u8]; 5])
        requires { (n ≤ 4) × (self.old.at + length (job_from n bias (body_at bodies)) ≤ length self.old.buffer.now) }
        ensures same_reference { self.new.buffer.ghost_name ≡ self.old.buffer.ghost_name }
        ensures advanced { self.new ≡ advanced self.old (contents_of n bias (body_at bodies.entry)) }
    {
        let at = self.at;
        self.at = laying::lay_contents(&mut *self.buffer, at, n, bias, bodies);
    }

    // The contents of a job, laid at the writer's position.
    pub fn put_contents<'b>(mut self, n: usize, bias: u8, bodies: [&'b [u8]; 5]) -> Writer<'a>
        requires { (n ≤ 4) × (self.at + length (job_from n bias (body_at bodies)) ≤ length self.buffer.now) }
        ensures { result ≡ advanced self.entry (contents_of n bias (body_at bodies.entry)) }
    {
        self.add_contents(n, bias, bodies);
        self
    }

    // The bodies of a job, laid at the writer's position, and the position behind them.
    pub fn put_bodies<'b>(self, n: usize, bodies: [&'b [u8]; 5]) -> usize
        requires { (n ≤ 4) × (self.at + length (bodies_of (body_at bodies) 0 (n + 1)) ≤ length self.buffer.now) }
        ensures { Laid self.entry.buffer.now self.entry.at (bodies_of (body_at bodies.entry) 0 (n + 1)) self.exit.0.now result }
    {
        let at = self.at;
        laying::lay_bodies(&mut *self.buffer, at, n, bodies)
    }
}

// The job whose body k stands at index k, from the buffer's front on; the answer is its length.
pub fn lay<'b>(buffer: &mut [u8], n: usize, bias: u8, bodies: [&'b [u8]; 5]) -> usize
    requires { (n ≤ 4) × (length (job_from n bias (body_at bodies)) ≤ length buffer.old) }
    ensures { Laid buffer.old 0 (job_from n bias (body_at bodies.entry)) buffer.new result }
{
    let mut w = Writer { buffer, at: 0 };
    w.add_contents(n, bias, bodies);
    w.put_bodies(n, bodies)
}
