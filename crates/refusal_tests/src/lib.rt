//! Tests in which memory is refused: of each call that grows something, growth 1, 2, 3 and so on is refused, until a run meets
//! no refusal.
#![tactic(auto)]

#[cfg(test)]
mod answers;
#[cfg(test)]
mod books;
#[cfg(test)]
mod calls;
#[cfg(test)]
mod carrying;
#[cfg(test)]
mod contexts;
#[cfg(test)]
mod forks;
#[cfg(test)]
mod growths;
#[cfg(test)]
mod handling;
#[cfg(test)]
mod hops;
#[cfg(test)]
mod listings;
#[cfg(test)]
mod made;
#[cfg(test)]
mod made_texts;
#[cfg(test)]
mod plays;
#[cfg(test)]
mod port;
#[cfg(test)]
mod programs;
#[cfg(test)]
mod reads;
#[cfg(test)]
mod redirecting;
#[cfg(test)]
mod schedules;
#[cfg(test)]
mod shelves;
#[cfg(test)]
mod sources;
#[cfg(test)]
mod texts;
#[cfg(test)]
mod trees;
#[cfg(test)]
mod wanted;
#[cfg(test)]
mod written;
