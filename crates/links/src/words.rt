// What became of received bytes, in words.
ghost use Rattle.std.specs.Prelude.{Some};
ghost use Rattle.links.specs.Receipts.{receipt_word};

use crate::answers::Receipt;
use std::fmt;

impl fmt::Display for Receipt {
    ghost output = { λ receipt. Some (receipt_word receipt) };

    fn fmt<W: fmt::Write>(&self, f: &mut fmt::Formatter<W>) -> fmt::Result {
        match self {
            Receipt::Kept => write!(f, "kept"),
            Receipt::Ignored => write!(f, "ignored"),
        }
    }
}
