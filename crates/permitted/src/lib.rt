// Permitted values (RULES 5, and the tables of RULES 4): one function for each rule about one number.
// Every function takes every number. It is a crate below `rules`, since positions and the later stages
// ask here too, and so that a change to one rule is checked without the judge of records.
//
// The contracts cite `specs/Permitted`.
#![tactic(auto)]

ghost use Rattle.std.specs.Prelude.{◌≡◌, ◌&&◌, leb};
ghost use Rattle.permitted.specs.Permitted.{natural, size, is_zero, within, is, at_least, is_mesh_code, follows_mesh, one_or_five, is_layer_code, follows_layer};
ghost use Rattle.permitted.specs.Permitted.{is_date, node_item_one, node_item_five, is_node_item, on_frame, layered, is_frame, line_item_one};
ghost use Rattle.permitted.specs.Permitted.{line_item_five, is_line_item, line_kind_one, line_kind_five, same, is_line_kind, link_size, is_link, is_code};
ghost use Rattle.permitted.specs.Permitted.{is_side, of_areas, is_area_code, is_slot, is_point, is_next, is_loop_serial};

// 0 or more.
pub fn natural(v: i32) -> bool
    ensures { result ≡ natural v }
{
    0 <= v
}

// The number without its sign.
pub fn size(v: i32) -> usize
    ensures { result ≡ size v }
{
    v.unsigned_abs() as usize
}

// Just 0.
pub fn is_zero(v: i32) -> bool
    ensures { result ≡ is_zero v }
{
    size(v) == 0
}

// One of `low` to `high`.
#[tactic(auto, unfolding(crate::specs::Permitted::within))]
pub fn within(v: i32, low: usize, high: usize) -> bool
    ensures { result ≡ within low high v }
{
    natural(v) & (low..=high).contains(&size(v))
}

// Just `n`.
pub fn is(v: i32, n: usize) -> bool
    ensures { result ≡ is n v }
{
    natural(v) & (size(v) == n)
}

// `n` or more.
pub fn at_least(v: i32, n: usize) -> bool
    ensures { result ≡ at_least n v }
{
    natural(v) & (n <= size(v))
}

// 100000 to 999999, the last two digits each 0 to 7.
#[tactic(auto, unfolding(crate::specs::Permitted::is_mesh_code))]
pub fn is_mesh_code(v: i32) -> bool
    ensures { result ≡ is_mesh_code v }
{
    let n = size(v);
    within(v, 100000, 999999) & ((n / 10 % 10 <= 7) & (n % 10 <= 7))
}

// Above the mesh code before, with the same first four digits.
#[tactic(auto, unfolding(crate::specs::Permitted::follows_mesh))]
pub fn follows_mesh(last: usize, v: i32) -> bool
    ensures { result ≡ follows_mesh last v }
{
    let n = size(v);
    (last == 0) | ((last < n) & (last / 100 == n / 100))
}

// 1 or 5.
fn one_or_five(n: usize) -> bool
    ensures { result ≡ one_or_five n }
{
    matches!(n, 1 | 5)
}

#[tactic(auto, unfolding(crate::specs::Permitted::is_layer_code))]
pub fn is_layer_code(v: i32) -> bool
    ensures { result ≡ is_layer_code v }
{
    natural(v) & one_or_five(size(v))
}

// Above the layer code before.
#[tactic(auto, unfolding(crate::specs::Permitted::follows_layer))]
pub fn follows_layer(last: usize, v: i32) -> bool
    ensures { result ≡ follows_layer last v }
{
    last < size(v)
}

// Year times 100 plus month; 0 is missing.
#[tactic(auto, unfolding(crate::specs::Permitted::is_date))]
pub fn is_date(v: i32) -> bool
    ensures { result ≡ is_date v }
{
    let n = size(v);
    natural(v) & ((n == 0) | ((n / 100 <= 99) & matches!(n % 100, 1..=12)))
}

fn node_item_one(n: usize) -> bool
    ensures { result ≡ node_item_one n }
{
    matches!(n, 1..=4)
}

fn node_item_five(n: usize) -> bool
    ensures { result ≡ node_item_five n }
{
    matches!(n, 1 | 6 | 8)
}

#[tactic(auto, unfolding(crate::specs::Permitted::is_node_item))]
pub fn is_node_item(layer: usize, v: i32) -> bool
    ensures { result ≡ is_node_item layer v }
{
    let n = size(v);
    match layer {
        1 => natural(v) & node_item_one(n),
        5 => natural(v) & node_item_five(n),
        _ => false,
    }
}

// Whether a point lies on the frame.
fn on_frame(x: usize, y: usize) -> bool
    ensures { result ≡ on_frame x y }
{
    matches!(x, 0 | 10000) | matches!(y, 0 | 10000)
}

// 1 exactly if X or Y is 0 or 10000, else 0.
#[tactic(auto, unfolding(crate::specs::Permitted::is_frame))]
pub fn is_frame(x: i32, y: i32, v: i32) -> bool
    ensures { result ≡ is_frame x y v }
{
    natural(v) & (size(v) == usize::from(on_frame(size(x), size(y))))
}

fn line_item_one(n: usize) -> bool
    ensures { result ≡ line_item_one n }
{
    matches!(n, 1..=5 | 9)
}

fn line_item_five(n: usize) -> bool
    ensures { result ≡ line_item_five n }
{
    matches!(n, 2 | 9)
}

#[tactic(auto, unfolding(crate::specs::Permitted::is_line_item))]
pub fn is_line_item(layer: usize, v: i32) -> bool
    ensures { result ≡ is_line_item layer v }
{
    let n = size(v);
    match layer {
        1 => natural(v) & line_item_one(n),
        5 => natural(v) & line_item_five(n),
        _ => false,
    }
}

fn line_kind_one(n: usize) -> bool
    ensures { result ≡ line_kind_one n }
{
    matches!(n, 0..=2 | 9)
}

fn line_kind_five(n: usize) -> bool
    ensures { result ≡ line_kind_five n }
{
    matches!(n, 1 | 2 | 9)
}

// What a layer permits as a line's kind.
fn layer_kind(layer: usize, n: usize) -> bool
    ensures { result ≡ layered layer (line_kind_one n) (line_kind_five n) }
{
    match layer {
        1 => line_kind_one(n),
        5 => line_kind_five(n),
        _ => false,
    }
}

// Both or neither.
pub fn same(a: bool, b: bool) -> bool
    ensures { result ≡ same a b }
{
    a == b
}

// The layer's kinds; 9 exactly if the item is.
#[tactic(auto, unfolding(crate::specs::Permitted::is_line_kind))]
pub fn is_line_kind(layer: usize, item: i32, v: i32) -> bool
    ensures { result ≡ is_line_kind layer item v }
{
    let n = size(v);
    natural(v) & (layer_kind(layer, n) & same(n == 9, size(item) == 9))
}

fn link_size(n: usize) -> bool
    ensures { result ≡ link_size n }
{
    matches!(n, 0..=2)
}

#[tactic(auto, unfolding(crate::specs::Permitted::is_link))]
pub fn is_link(v: i32) -> bool
    ensures { result ≡ is_link v }
{
    natural(v) & link_size(size(v))
}

// 1 to 99999 in layer 1; 0 to 99999 in layer 5, where 0 is land.
fn code_size(layer: usize, n: usize) -> bool
    ensures { result ≡ layered layer (leb 1 n && leb n 99999) (leb n 99999) }
{
    match layer {
        1 => matches!(n, 1..=99999),
        5 => n <= 99999,
        _ => false,
    }
}

#[tactic(auto, unfolding(crate::specs::Permitted::is_code))]
pub fn is_code(layer: usize, v: i32) -> bool
    ensures { result ≡ is_code layer v }
{
    natural(v) & code_size(layer, size(v))
}

// An L's area number: 0 or more, and 0 exactly if the code beside it is 88888.
#[tactic(auto, unfolding(crate::specs::Permitted::is_side))]
pub fn is_side(code: i32, v: i32) -> bool
    ensures { result ≡ is_side code v }
{
    natural(v) & same(size(v) == 0, size(code) == 88888)
}

// What tells of areas, by its layer's letters: under H1, which are 1, it is 0, and else `ok` says whether its
// own rule permits it.
#[tactic(auto, unfolding(crate::specs::Permitted::of_areas))]
pub fn of_areas(letters: u32, v: i32, ok: bool) -> bool
    ensures { result ≡ of_areas letters v ok }
{
    if letters == 1 { is(v, 0) } else { ok }
}

// An A's code: never 88888.
#[tactic(auto, unfolding(crate::specs::Permitted::is_area_code))]
pub fn is_area_code(layer: usize, v: i32) -> bool
    ensures { result ≡ is_area_code layer v }
{
    is_code(layer, v) & (size(v) != 88888)
}

// Not 0 within the count, 0 past it.
#[tactic(auto, unfolding(crate::specs::Permitted::is_slot))]
pub fn is_slot(counted: bool, v: i32) -> bool
    ensures { result ≡ is_slot counted v }
{
    (size(v) != 0) == counted
}

// 0 to 10000 within the count, 0 past it.
#[tactic(auto, unfolding(crate::specs::Permitted::is_point))]
pub fn is_point(counted: bool, v: i32) -> bool
    ensures { result ≡ is_point counted v }
{
    if counted {
        within(v, 0, 10000)
    } else {
        is_zero(v)
    }
}

// The serial behind `last`.
#[tactic(auto, unfolding(crate::specs::Permitted::is_next))]
pub fn is_next(last: usize, v: i32) -> bool
    ensures { result ≡ is_next last v }
{
    natural(v) & (size(v).checked_sub(1) == Some(last))
}

// The serial of loop `n`: 1, -2, -3 and on.
#[tactic(auto, unfolding(crate::specs::Permitted::is_loop_serial))]
pub fn is_loop_serial(n: usize, v: i32) -> bool
    ensures { result ≡ is_loop_serial n v }
{
    (size(v) == n) & same(natural(v), n == 1)
}
