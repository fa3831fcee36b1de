// Cases of the mode that are run: lengths around the edges of blocks, every refusal and their order, what is not
// authentic, and what each call leaves in its buffer.
#![tactic(auto)]

#[cfg(test)]
mod authentic;
#[cfg(test)]
mod lengths;
#[cfg(test)]
mod parts;
#[cfg(test)]
mod refusals;
mod wide_exchange;

pub use wide_exchange::WideExchange;
