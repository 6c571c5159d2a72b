// Tests of item kinds, of both memories and of arranged stores on examples.
#![tactic(auto)]

#[cfg(test)]
mod arranged;
#[cfg(test)]
mod figures;
#[cfg(test)]
mod memories;

#[cfg(test)]
const ITEM: items::Reading = items::Reading {
    probe: 41,
    sequence: 7,
    level: -250,
};
