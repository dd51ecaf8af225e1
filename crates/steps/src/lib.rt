// One function for each call and each event: it calls the method, and its contract says that what comes out is the
// step of that move (specs/World), in every world that has this terminal and these areas. So what is proved of steps
// and runs holds of the code.
#![tactic(auto)]

mod account_steps;
mod device_steps;
mod event_steps;
mod memory_steps;
mod stop_steps;
