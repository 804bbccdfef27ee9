// What one site does when verdicts fall: resolving and queue walking.
#![tactic(auto)]

pub mod hearing;
pub mod walking;
