/// A call on a sweep: an advance, a run with a buffer of so many bytes, or the four questions.
#[derive(Clone, Copy, Debug)]
pub enum Call {
    Advance,
    Run(usize),
    Ask,
}
