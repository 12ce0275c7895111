// The count record of an output: how many bytes of its paper are used.
#[derive(Clone, Copy, PartialEq, Eq, Debug)]
pub struct Count {
    pub used: usize,
}
