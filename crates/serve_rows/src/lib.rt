//! The archive over links, from the bytes of requests to those of replies and lines.
#![tactic(auto)]

#[cfg(test)]
mod archive;
#[cfg(test)]
mod exchange;
#[cfg(test)]
mod hits;
#[cfg(test)]
mod hostile;
#[cfg(test)]
mod replies;
