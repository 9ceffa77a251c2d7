//! Types as plain data: their bytes, limits, normal form, tests and texts (`specs`).
#![tactic(auto)]
