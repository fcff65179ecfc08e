// The sine table, and the unit vectors that are read from it.
ghost use Rattle.std.specs.Prelude.{◌≡◌, cond, ◌%◌, ◌<◌, eqb, pos, neg_ℤ, get_or};
ghost use Rattle.vectors.specs.Tables.{sin_quarter};
ghost use Rattle.vectors.specs.Vector.{by_quarter, cos_at, sin_at};

use crate::UnitVector;

// The entries of the table.
pub const ENTRIES: usize = 257;

// sin over a quarter turn in 256 steps, scaled to 2^14.
const SIN_QUARTER: [u16; ENTRIES] = [
    0, 101, 201, 302, 402, 503, 603, 704, 804, 904, 1005, 1105, 1205, 1306, 1406, 1506, 1606, 1706,
    1806, 1906, 2006, 2105, 2205, 2305, 2404, 2503, 2603, 2702, 2801, 2900, 2999, 3098, 3196, 3295,
    3393, 3492, 3590, 3688, 3786, 3883, 3981, 4078, 4176, 4273, 4370, 4467, 4563, 4660, 4756, 4852,
    4948, 5044, 5139, 5235, 5330, 5425, 5520, 5614, 5708, 5803, 5897, 5990, 6084, 6177, 6270, 6363,
    6455, 6547, 6639, 6731, 6823, 6914, 7005, 7096, 7186, 7276, 7366, 7456, 7545, 7635, 7723, 7812,
    7900, 7988, 8076, 8163, 8250, 8337, 8423, 8509, 8595, 8680, 8765, 8850, 8935, 9019, 9102, 9186,
    9269, 9352, 9434, 9516, 9598, 9679, 9760, 9841, 9921, 10001, 10080, 10159, 10238, 10316, 10394,
    10471, 10549, 10625, 10702, 10778, 10853, 10928, 11003, 11077, 11151, 11224, 11297, 11370,
    11442, 11514, 11585, 11656, 11727, 11797, 11866, 11935, 12004, 12072, 12140, 12207, 12274,
    12340, 12406, 12472, 12537, 12601, 12665, 12729, 12792, 12854, 12916, 12978, 13039, 13100,
    13160, 13219, 13279, 13337, 13395, 13453, 13510, 13567, 13623, 13678, 13733, 13788, 13842,
    13896, 13949, 14001, 14053, 14104, 14155, 14206, 14256, 14305, 14354, 14402, 14449, 14497,
    14543, 14589, 14635, 14680, 14724, 14768, 14811, 14854, 14896, 14937, 14978, 15019, 15059,
    15098, 15137, 15175, 15213, 15250, 15286, 15322, 15357, 15392, 15426, 15460, 15493, 15525,
    15557, 15588, 15619, 15649, 15679, 15707, 15736, 15763, 15791, 15817, 15843, 15868, 15893,
    15917, 15941, 15964, 15986, 16008, 16029, 16049, 16069, 16088, 16107, 16125, 16143, 16160,
    16176, 16192, 16207, 16221, 16235, 16248, 16261, 16273, 16284, 16295, 16305, 16315, 16324,
    16332, 16340, 16347, 16353, 16359, 16364, 16369, 16373, 16376, 16379, 16381, 16383, 16384,
    16384,
];

// The table as a local that is lent to its readers: a constant is copied wherever it is named.
#[derive(Drop)]
pub struct SinTable {
    pub entries: [u16; ENTRIES],
    pub ghost is_table: { entries ≡ sin_quarter },
}

impl SinTable {
    #[tactic(auto, unfolding(crate::specs::Tables::sin_quarter))]
    pub fn new() -> Self {
        SinTable {
            entries: SIN_QUARTER,
        }
    }

    fn entry(&self, i: usize) -> u16
        requires { i < 257 }
        ensures { result ≡ get_or sin_quarter i 0 }
    {
        self.entries[i]
    }

    // Cosine and sine, scaled to 16,384, of the angle with these bits. The cosine is the sine a quarter turn on.
    pub fn unit_vector(&self, bits: u16) -> UnitVector
        ensures { (result.cos ≡ cos_at bits) × (result.sin ≡ sin_at bits) }
    {
        let a = bits / 64;
        let quadrant = a / 256;
        let i = usize::from(a % 256);
        let s = self.entry(i);
        let c = self.entry(256 - i);
        UnitVector {
            cos: sine_in((quadrant + 1) % 4, s, c),
            sin: sine_in(quadrant, s, c),
        }
    }
}

// The magnitude of the sine in a quarter turn, of the two that the table gives.
fn magnitude(quadrant: u16, s: u16, c: u16) -> u16
    ensures { result ≡ cond (eqb (quadrant % 2) 0) s c }
{
    if quadrant % 2 == 0 { s } else { c }
}

// The sine in a quarter turn: two choices and no jump, since the quarter turns of still angles about 0 change at random.
fn sine_in(quadrant: u16, s: u16, c: u16) -> i32
    requires { quadrant < 4 }
    ensures { result ≡ by_quarter quadrant (pos s) (pos c) (neg_ℤ (pos s)) (neg_ℤ (pos c)) }
{
    let x = i32::from(magnitude(quadrant, s, c));
    if quadrant < 2 { x } else { -x }
}
