// A session: a case over a rulebase with the line of each conclusion. It takes changes, derives again only what each reaches,
// tells listeners, and says how many slots that were.

mod answering;
mod changes;
mod coming;
mod first;
mod holding;
mod laid;
mod listing;
mod placing;
mod ready;
mod relisting;
mod replacing;
mod session;
mod settling;
mod starting;
mod told;

pub use session::Session;
