//! Scoped views and groups of views, and what their refusals say. Python 3.11 gave each outside value.
#![tactic(auto)]

#[cfg(test)]
mod scopes;
