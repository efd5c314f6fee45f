// A point's latitude and longitude in degrees (RULES 10), from the mesh
// code of its sheet and its X and Y there. The public function takes every number.
//
// The contracts cite `specs/Degrees.antt`. What is permitted stands in `permitted`.
#![tactic(auto)]

ghost use Rattle.std.specs.Prelude.{◌≡◌, ◌≤◌};
ghost use Rattle.positions.specs.Degrees.{position_of, placed, not_placed};

#[repr(C)]
#[derive(Clone, Copy)]
pub struct Position {
    pub latitude: f64,
    pub longitude: f64,
}

// A position beside its refusal number: 0, or 6 with both degrees 0.
// kept: the C interface hands this record out as it lies, so it is no Result
#[repr(C)]
#[derive(Clone, Copy)]
pub struct Placed {
    pub number: u32,
    pub position: Position,
}

// What is not permitted.
fn refused() -> Placed
    ensures { result ≡ not_placed }
{
    Placed {
        number: 6,
        position: Position {
            latitude: 0.0,
            longitude: 0.0,
        },
    }
}

// The position of a point that is permitted.
fn place(mesh: u32, x: u32, y: u32) -> Placed
    requires { (mesh ≤ 999999) × (x ≤ 10000) × (y ≤ 10000) }
    ensures { result ≡ placed mesh x y }
{
    let pp = mesh / 10000;
    let uu = mesh / 100 % 100;
    let q = mesh / 10 % 10;
    let v = mesh % 10;
    let latitude = pp * 240000 + q * 30000 + 3 * y;
    let longitude = (100 + uu) * 720000 + v * 90000 + 9 * x;
    Placed {
        number: 0,
        position: Position {
            latitude: f64::from(latitude) / 360000.0,
            longitude: f64::from(longitude) / 720000.0,
        },
    }
}

// The position of the point (`x`, `y`) on the sheet with the code `mesh`.
#[tactic(auto, using(permitted::proofs::Bounds::code_most, permitted::proofs::Bounds::within_most), unfolding(crate::specs::Degrees::position_of))]
pub fn position_of(mesh: i32, x: i32, y: i32) -> Placed
    ensures { result ≡ position_of mesh x y }
{
    if permitted::is_mesh_code(mesh)
        && permitted::within(x, 0, 10000)
        && permitted::within(y, 0, 10000)
    {
        place(
            permitted::size(mesh) as u32,
            permitted::size(x) as u32,
            permitted::size(y) as u32,
        )
    } else {
        refused()
    }
}
