// Tests from outside the libraries, each a table of cases at the edges of the rules.
#![tactic(auto)]

#[cfg(test)]
mod reports;
#[cfg(test)]
mod set_files;
