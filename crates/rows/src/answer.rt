// What `values` answers, apart from it: names that differ only in case cannot stand in one module.

// The residuals of an equation's rows: none, one or two.
#[derive(Clone, Copy, Debug, PartialEq)]
pub enum Values {
    None,
    One(f64),
    Two(f64, f64),
}
