//! Guests that are alone, each run through the top call and by the plain interpreter, which is to print the same. What the
//! runs print, count and publish stands in `rows`, under the same names.
//!
//! It stands on `host` and `plain_run`, and nothing stands on it.
#![tactic(auto)]

#[cfg(test)]
mod files;
#[cfg(test)]
mod guests;
#[cfg(test)]
mod hosting;
