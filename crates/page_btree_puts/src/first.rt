//! The page of a map with one row.
ghost use Rattle.page_btree_gets.specs.Map.{IsOnlyRow};
ghost use Rattle.page_btree_gets.specs.Asked.{IsRowToPut};

use page_btree_gets::{NodeBuf, PageBytes};

/// Writes the page of a map with one row: the page that a put into an empty map writes. A store can
/// be formatted with its first row so.
#[tactic(auto, using(crate::proofs::Roots::only_holds))]
pub fn write_first_row(page: &mut PageBytes, key: &[u8], value: &[u8])
    requires { IsRowToPut key.now value.now }
    ensures { IsOnlyRow page.new key.now value.now }
{
    let mut node = NodeBuf::EMPTY;
    node.clear(0);
    node.insert(0, key, value);
    node.write(page);
}
