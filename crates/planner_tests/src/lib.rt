#![tactic(auto)]

// Examples and limits of the planner's questions.
#[cfg(test)]
mod bargains;
#[cfg(test)]
mod better;
#[cfg(test)]
mod fronts;
#[cfg(test)]
mod grades;
#[cfg(test)]
mod limits;
#[cfg(test)]
mod samples;
#[cfg(test)]
mod timed;
