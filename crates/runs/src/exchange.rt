use rules::calls::{Answer, Call};
use terms::refusals::Refusal;

// A call, with room for the answer that it is given.
#[derive(Clone, Copy)]
pub struct Exchange<V> {
    pub call: Call<V>,
    pub answer: Result<Answer<V>, Refusal>,
}
