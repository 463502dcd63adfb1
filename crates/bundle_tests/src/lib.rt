// Tests of the reader of bundles and of their listing, on bundles that are put together here.
#![tactic(auto)]

#[cfg(test)]
mod assembled;
#[cfg(test)]
mod listings;
#[cfg(test)]
mod tests;
