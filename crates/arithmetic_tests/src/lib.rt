// Products, inverses and powers of the two kinds against values of another program, outside/vectors/field.py.
#![tactic(auto)]

#[cfg(test)]
mod tests;
