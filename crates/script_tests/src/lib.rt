// Tests of `livesim` over scripts (`script_tests`): what no row of script_rows can reach; and of what script_rows reads (`line_tests`).
#![tactic(auto)]

#[cfg(test)]
mod line_tests;
#[cfg(test)]
mod script_tests;
