// The angle of a point, read from the arctangent table (phase.rs, `atan2_brad`).
ghost use Rattle.std.specs.Prelude.{◌≡◌, ◌≤◌, ◌<◌};
ghost use Rattle.phase.specs.Tables.{entries, eighth_turn};
ghost use Rattle.phase.specs.Angle.{table_index, octant_angle, first_quadrant, mirror_x, angle_of, quarter_turn, half_turn, most};

use crate::tables::AtanTable;

// The parts of the ratio that the table is read at.
const STEPS: u32 = 256;

const QUARTER_TURN: u32 = 16384;

const HALF_TURN: u32 = 32768;

// Where the table is read for a point lo from an axis and hi along it: the ratio in 256ths, to the nearest, half going up.
#[tactic(auto, using(crate::proofs::Octants::index_lt), unfolding(crate::specs::Angle::table_index))]
fn table_index(lo: u32, hi: u32) -> usize
    requires { (lo ≤ hi) × (1 ≤ hi) × (hi ≤ most) }
    ensures { (result ≡ table_index lo hi) × (result < entries) }
{
    ((lo * STEPS + hi / 2) / hi) as usize
}

// An angle of the first quadrant, on the side of the y axis that x is on.
#[tactic(auto, unfolding(crate::specs::Angle::mirror_x))]
fn half_plane(x: i8, a: u32) -> u32
    requires { a ≤ quarter_turn }
    ensures { (result ≡ mirror_x x a) × (result ≤ half_turn) }
{
    if x < 0 { HALF_TURN - a } else { a }
}

impl AtanTable {
    // The angle from an axis of a point hi along it and lo from it; 0 where the point is the origin.
    #[tactic(auto, using(crate::proofs::Octants::octant_origin, crate::proofs::Octants::octant_read))]
    fn octant(&self, lo: u32, hi: u32) -> u32
        requires { (lo ≤ hi) × (hi ≤ most) }
        ensures { (result ≡ octant_angle lo hi) × (result ≤ eighth_turn) }
    {
        if hi == 0 {
            return 0;
        }
        u32::from(self.entry(table_index(lo, hi)))
    }

    // The angle in the first quadrant of a point with these distances from the axes. Above the diagonal it is a quarter turn
    // less the angle from the y axis. The smaller distance over the larger serves both sides, without a branch.
    #[tactic(auto, using(crate::proofs::Octants::below_diagonal, crate::proofs::Octants::above_diagonal))]
    fn first_quadrant(&self, ay: u32, ax: u32) -> u32
        requires { (ay ≤ most) × (ax ≤ most) }
        ensures { (result ≡ first_quadrant ay ax) × (result ≤ quarter_turn) }
    {
        let a = self.octant(ay.min(ax), ay.max(ax));
        if ay <= ax { a } else { QUARTER_TURN - a }
    }

    // The angle of (x, y): 0 along +x, 16,384 along +y, half a turn as -32,768, and 0 at (0, 0).
    #[tactic(auto, unfolding(crate::specs::Angle::angle_of, crate::specs::Angle::mirror_y))]
    pub fn angle(&self, y: i8, x: i8) -> i16
        ensures { result ≡ angle_of y x }
    {
        let quadrant = self.first_quadrant(
            u32::from(y.unsigned_abs()),
            u32::from(x.unsigned_abs()),
        );
        let wide = i64::from(half_plane(x, quadrant));
        num::wrap_i16(if y < 0 { -wide } else { wide })
    }
}
