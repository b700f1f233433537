//! Storing bytes, in the edited line and as unread input.

ghost use Rattle.std.specs.Prelude.{◌≡◌, ◌+◌, ◌<◌, ◌≤◌, [], ◌∷◌, ◌++◌, length, map};
ghost use Rattle.tty_base.specs.Sizes.{MOST_ENDS, MOST_LINE, MOST_UNREAD};
ghost use Rattle.line_store.specs.Unread.{Byte, End, bytes_of, end_count};
ghost use Rattle.n_tty.specs.Storing.{start_of};

use line_store::Store;
use n_tty_edit::Edit;

/// The column in which a line began: that of now, while it is empty.
pub fn start_of(edit: &Edit, start: usize, column: u64) -> usize
    ensures { result ≡ start_of edit.now start column }
{
    if edit.bytes().is_empty() {
        column as usize
    } else {
        start
    }
}

/// Adds bytes to the line, which has room for them.
pub fn add_all(edit: &mut Edit, bytes: &[u8])
    requires { length edit.old + length bytes.now ≤ MOST_LINE }
    ensures { edit.new ≡ edit.old ++ bytes.now }
{
    if let [byte] = bytes {
        let _joined = edit.add(*byte);
        return;
    }
    for byte in bytes {
        let _added = edit.add(*byte);
    }
}

/// The line becomes a piece that ends with its delimiter.
pub fn end_with(store: &mut Store, edit: &mut Edit, delimiter: u8)
    requires room { length (bytes_of store.old) + length edit.old < MOST_UNREAD }
    requires ends { end_count store.old < MOST_ENDS }
    ensures store { store.new ≡ store.old ++ (map Byte edit.old ++ Byte delimiter ∷ End ∷ []) }
    ensures edit { edit.new ≡ [] }
{
    store.append(edit.bytes());
    store.push(delimiter);
    store.end_line();
    let _count = edit.kill();
}

/// The line becomes a piece that ends with an EOF mark.
pub fn end_with_eof(store: &mut Store, edit: &mut Edit)
    requires room { length (bytes_of store.old) + length edit.old ≤ MOST_UNREAD }
    requires ends { end_count store.old < MOST_ENDS }
    ensures store { store.new ≡ store.old ++ (map Byte edit.old ++ End ∷ []) }
    ensures edit { edit.new ≡ [] }
{
    store.append(edit.bytes());
    store.end_line();
    let _count = edit.kill();
}
