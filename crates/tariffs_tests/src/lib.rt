#![tactic(auto)]

// Examples and limits of costs, texts, tariffs and hires.
#[cfg(test)]
mod cards;
#[cfg(test)]
mod costs_and_texts;
#[cfg(test)]
mod hires;
#[cfg(test)]
mod tables;
