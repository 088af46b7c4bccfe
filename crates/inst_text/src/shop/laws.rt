//! What the texts of shops are.

ghost use Rattle.std.specs.Prelude.{◌≡◌, ◌↔◌, List, ℕ, Ok};
ghost use Rattle.inst_text.specs.Shop.{JobShop, IsJobShop, IsShopText, shop_of, shop_text};

/// Law: bytes read as a shop exactly where they are a text of it.
pub fn shop_texts_are_read()
    ensures { (bytes : List ℕ) (s : JobShop) → (shop_of bytes ≡ Ok s) ↔ IsShopText bytes s }
{}

/// Law: the text of a shop reads as this shop.
pub fn written_shops_are_read()
    ensures { (s : JobShop) → IsJobShop s → shop_of (shop_text s) ≡ Ok s }
{}
