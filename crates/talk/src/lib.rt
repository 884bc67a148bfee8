// The little program but for its streams: an input in, all that is written out.
#![tactic(auto)]

mod answering;
mod serving;

pub use answering::answer;
pub use serving::serve;
