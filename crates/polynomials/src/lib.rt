// Polynomials over the field of 257: values at powers of 3, products with factors of degree 1, locator polynomials.
#![tactic(auto)]

pub mod factor;
pub mod locator;
pub mod values;
