//! Which full names a written one means, by the namespace and the aliases that are in force. Definitions alone.
#![tactic(auto)]
