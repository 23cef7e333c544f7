// The processor as a site's programmer meets it: the places where an 1802 is usually got wrong, and the manual's examples.
//
// Tests have a crate of their own, so that an edit of the processor does not prove them again.
#![tactic(auto)]

#[cfg(test)]
mod bench;
#[cfg(test)]
mod instructions;
#[cfg(test)]
mod requests;
