//! Tests of a desk over tables that is asked by the bytes of requests. Each request for memory that a request
//! of the worked rows makes is refused in turn, and so is each call of the store. Files are on two memory
//! disks, one of which fails after so many calls of requests or of a migration; what is left is opened again,
//! and serves on. Nothing here is part of the product.
#![tactic(auto)]

#[cfg(test)]
mod answers;
#[cfg(test)]
mod counted;
#[cfg(test)]
mod desks;
#[cfg(test)]
mod disks;
#[cfg(test)]
mod files;
#[cfg(test)]
mod growth;
#[cfg(test)]
mod playing;
#[cfg(test)]
mod quiet;
#[cfg(test)]
mod refused;
#[cfg(test)]
mod statements;
#[cfg(test)]
mod stops;
#[cfg(test)]
mod tables;
#[cfg(test)]
mod worlds;
