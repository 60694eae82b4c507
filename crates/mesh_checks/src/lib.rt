// Tests of the meshes from outside: small meshes, and the limits of each from both sides.
#![tactic(auto)]

#[cfg(test)]
mod examples;
