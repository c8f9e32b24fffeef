// The loops of 002, the generalized power cone: folds over the head of a point and the exponents, and arrays filled place by place.

pub mod folds;
pub mod places;
