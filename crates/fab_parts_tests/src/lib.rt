//! Tests of parts of the desk by themselves: what each file has, it tells. What names, members and plan texts
//! are, contracts say of all texts, and what is said by requests and answers alone is recorded in
//! `fab_wire_conformance`. Nothing here is part of the product.
#![tactic(auto)]

#[cfg(test)]
mod active;
#[cfg(test)]
mod books;
#[cfg(test)]
mod copies;
#[cfg(test)]
mod cuts;
#[cfg(test)]
mod faults;
#[cfg(test)]
mod growth;
#[cfg(test)]
mod kept;
#[cfg(test)]
mod limits;
#[cfg(test)]
mod named;
#[cfg(test)]
mod places;
#[cfg(test)]
mod prints;
#[cfg(test)]
mod quiet;
#[cfg(test)]
mod refusing;
#[cfg(test)]
mod streams;
#[cfg(test)]
mod verdicts;
#[cfg(test)]
mod words;
#[cfg(test)]
mod worlds;
