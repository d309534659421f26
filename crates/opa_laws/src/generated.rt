// Laws alone: the rulebase that is generated is accepted.

mod laws;

pub use laws::generated_is_accepted;
