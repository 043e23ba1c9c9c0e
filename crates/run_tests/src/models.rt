//! Models, as text that spells their bytes.

/// The method returns.
pub const LEAST: &str = "1 5*0 3*1 0 1 | 0 0 | 7*0 1 | 6*0 1 | 7*0 | 10 3*0 1 6*0";

/// The method calls another on its object, and awaits the future. The other returns.
pub const AWAITS: &str =
    "2 1 4*0 1 2 2 0 4 | 0 0 | 5 0 | 1 | 7*0 2 | 4*0 1 0 3 | 1 4*0 3 1 | 7*0 | 7*0 | 8 1 0 1 \
    5*0 1 0 | 4 3*0 1 4*0 2 0 | 10 3*0 1 6*0 | 10 3*0 1 1 5*0";

/// The method calls another on its object, and gets the value of the future.
pub const GETS: &str =
    "2 1 4*0 1 2 3 0 4 | 0 0 | 5 0 | 1 | 7*0 2 | 4*0 1 0 3 | 1 4*0 3 1 | 5 6*0 | 7*0 | 7*0 | 8 \
    1 0 1 5*0 1 0 | 5 3*0 1 4*0 2 0 | 10 3*0 1 1 5*0 | 10 3*0 1 2 5*0";

/// The method calls another on its object synchronously.
pub const CALLS_INSIDE: &str =
    "1 5*0 1 2 2 0 3 | 0 0 | 7*0 2 | 6*0 2 | 1 4*0 2 1 | 7*0 | 7*0 | 9 0 0 1 5*0 1 0 | 10 3*0 1 \
    6*0 | 10 3*0 1 1 5*0";

/// The method calls null.
pub const CALLS_NULL: &str =
    "2 1 0 0 4*1 2 0 2 | 0 0 | 4 0 | 1 | 0 1 | 4*0 | 7*0 1 | 1 3*0 1 0 2 | 5 6*0 | 7*0 | 8 0 1 \
    6*0 1 0 | 10 3*0 1 1 5*0";

/// The method gets from null.
pub const GETS_NULL: &str =
    "2 1 4*0 1 1 2 0 2 | 0 0 | 5 0 | 1 | 7*0 1 | 4*0 1 0 2 | 5 6*0 | 7*0 | 5 3*0 1 4*0 1 0 | 10 \
    3*0 1 1 5*0";

/// The method evaluates a case expression in which no pattern fits.
pub const NO_BRANCH: &str =
    "3 2 2 1 0 0 1 1 7 1 2 | 2 0 | 3 0 | 0 0 | 1 | 0 | 3*0 | 3*0 | 0 0 1 1 3 | 7*0 1 | 0 2 1 0 \
    1 0 2 | 5 6*0 | 7 6*0 | 3 1 5*0 | 9 0 1 4*0 | 7 1 5*0 | 8 0 1 4 3*0 | 7*0 | 1 2 0 | 1 1 0 \
    0 1 5 3*0 1 0 | 10 3*0 1 6 5*0";

/// The method divides 1 by 0.
pub const DIVIDES: &str =
    "2 1 4*0 1 1 4 0 2 | 0 0 | 2 0 | 1 | 7*0 1 | 4*0 1 0 2 | 3 1 5*0 | 3 6*0 | 12 0 2 0 1 0 0 | \
    7*0 | 1 1 0 0 1 2 3*0 1 0 | 10 3*0 1 3 5*0";

/// The method evaluates an expression that makes 10,000 visits, and then one that makes 10,001.
pub const VISITS: &str =
    "3 2 0 1 0 0 1 1 19 2 3 | 1 0 | 2 0 | 0 0 | 1 | 0 | 0 0 1 1 10 | 7*0 1 | 0 2 1 0 1 0 3 | 5 \
    6*0 | 3 1 5*0 | 13 0 2 0 1 0 0 | 2 6*0 | 2 6*0 | 1 6*0 | 5 6*0 | 3 1 5*0 | 11 0 2 6 7 0 0 \
    | 8 0 1 8 3*0 | 9 0 1 2 3*0 | 3 1249 5*0 | 8 0 1 11 3*0 | 15 0 1 12 3*0 | 3 1249 5*0 | 8 0 \
    1 14 3*0 | 15 0 1 15 3*0 | 15 0 1 16 3*0 | 7*0 | 3 4 1 | 5 9 0 | 1 1 0 0 1 13 3*0 1 0 | 1 \
    1 0 0 1 17 3*0 2 0 | 10 3*0 1 18 5*0";

/// The method calls itself, again and again.
pub const CALLS_ON: &str = "1 5*0 1 1 0 0 1 | 0 0 | 7*0 1 | 6*0 1 | 8 10*0";

/// The method makes an object, again and again.
pub const CREATES_ON: &str = "1 5*0 1 1 0 0 1 | 0 0 | 7*0 1 | 6*0 1 | 6 10*0";

/// The method puts a constructor around what it has, again and again.
pub const CHAINS_ON: &str =
    "2 1 2 3*0 1 1 2 0 1 | 3 0 | 0 0 | 0 | 3*0 | 0 0 1 | 7*0 1 | 0 1 0 0 1 0 1 | 5 6*0 | 7 1 1 \
    4*0 | 1 1 0 0 1 1 5*0";

/// The method makes an object of an outside class, and calls it, again and again.
pub const RINGS_ON: &str =
    "4 2 0 0 1 1 3*2 0 2 | 1 0 | 2 0 | 0 0 | 4 0 | 1 | 3 | 0 1 | 3*0 1 | 7*0 1 | 3*1 3*0 1 1 | \
    1 2 1 0 1 0 2 | 3*0 1 1 0 0 | 5 6*0 | 3 1 5*0 | 6 1 0 1 5*0 1 0 | 8 0 1 0 1 1 3*0 1 0";

/// The method calls an object of an outside class, with 21, and divides 1 by the reply.
pub const DIVIDES_BY_REPLY: &str =
    "3 3 0 0 1 1 2 2 6 0 4 | 2 0 | 0 0 | 4 0 | 0 | 2 | 0 | 0 1 | 3*0 1 | 7*0 1 | 3*1 3*0 1 1 | \
    3*1 0 2 0 4 | 3*0 1 1 0 0 | 5 6*0 | 3 21 5*0 | 3 1 5*0 | 5 1 5*0 | 12 0 2 2 3 0 0 | 7*0 | \
    6 1 0 1 5*0 1 0 | 9 2 1 0 1 1 3*0 2 0 | 1 2 0 0 1 4 3*0 3 0 | 10 3*0 1 5 5*0";
