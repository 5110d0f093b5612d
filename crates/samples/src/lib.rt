// Worked examples, as tests: each is proved to return and then run.
#![tactic(auto)]

#[cfg(test)]
mod listings;
#[cfg(test)]
mod memories;
#[cfg(test)]
mod words;
