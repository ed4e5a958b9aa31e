//! What no clause says, and no run of the built program shows: streams that take or give little, sockets that move and
//! carry the longest datagram, blocks of memory of sizes that no member asks for, what errors print, and each line of a
//! node's journal where the outside fails.
#![tactic(auto)]

#[cfg(test)]
mod blocks;
#[cfg(test)]
mod errors;
#[cfg(test)]
mod nodes;
#[cfg(test)]
mod runs;
#[cfg(test)]
mod streams;
#[cfg(test)]
mod udp;
