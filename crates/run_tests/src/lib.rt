// Tests of drains, of rehearsals and of the text that the program `rehearse` prints.
#![tactic(auto)]

#[cfg(test)]
mod drains;
#[cfg(test)]
mod printed;
