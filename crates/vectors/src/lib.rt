// The published examples of SHA-256 and HMAC-SHA-256, run against the crate `digest`.
#![tactic(auto)]

#[cfg(test)]
mod tests;
