//! Cubies under a rotation that renames the places.
ghost use Rattle.niss_cube.specs.CubieTurns.{face_by, renaming_table, renamed_home, renamed_orientation};
ghost use Rattle.std.specs.Prelude.{◌≡◌, ◌<◌, ◌≤◌, EachIndex, slice_index};

use niss_moves::{Axis, Face, Power};

/// The places of one kind of cubies under a rotation of the whole cube that renames them.
#[derive(Clone, Copy)]
pub struct RenamedPlaces<const PLACES: usize, const FACELETS: u8> {
    /// The original place of each renamed one.
    pub from: [u8; PLACES],
    /// The renamed place of each original one.
    pub to: [u8; PLACES],
    /// By the original place: which facelet there the renamed first one is.
    pub inward: [u8; PLACES],
}

impl<const PLACES: usize, const FACELETS: u8> RenamedPlaces<PLACES, FACELETS> {
    /// The renamed cubies by place: which stand there, and how they are twisted or flipped.
    #[inline(always)]
    pub fn renamed(
        &self,
        homes: &[u8; PLACES],
        orientations: &[u8; PLACES],
    ) -> ([u8; PLACES], [u8; PLACES])
        requires from_range { EachIndex self.now.from (λ k. slice_index self.now.from k < PLACES) }
        requires in_range { EachIndex self.now.inward (λ k. slice_index self.now.inward k < FACELETS) }
        requires facelets { FACELETS ≤ 3 }
        requires home_range { EachIndex homes.now (λ k. slice_index homes.now k < PLACES) }
        requires orientation_range { EachIndex orientations.now (λ k.
            slice_index orientations.now k < FACELETS) }
        ensures homes { EachIndex result.0 (λ k. slice_index result.0 k
            ≡ renamed_home self.now.from self.now.to homes.now k) }
        ensures orientations { EachIndex result.1 (λ k. slice_index result.1 k
            ≡ renamed_orientation FACELETS self.now.from self.now.inward homes.now orientations.now k) }
    {
        let (mut new_homes, mut new_orientations) = ([0; PLACES], [0; PLACES]);
        for place in 0..PLACES {
            let old_place = self.from[place] as usize;
            let home = homes[old_place] as usize;
            // The original first facelet of the place, seen from the renamed one.
            let outward = FACELETS - self.inward[old_place];
            new_homes[place] = self.to[home];
            new_orientations[place] = (self.inward[home] + orientations[old_place] + outward)
                % FACELETS;
        }
        (new_homes, new_orientations)
    }
}

/// A rotation of the whole cube that renames the places, by tables.
#[derive(Clone, Copy)]
pub struct RenamingTable {
    pub corners: RenamedPlaces<8, 3>,
    pub edges: RenamedPlaces<12, 2>,
}

/// The original place of each renamed corner place, by `x`.
const CORNERS_BY_X: [u8; 8] = [4, 5, 1, 0, 7, 6, 2, 3];

/// The same by `x'`, which takes `x` back.
const CORNERS_BY_X_COUNTER: [u8; 8] = [3, 2, 6, 7, 0, 1, 5, 4];

/// The original place of each renamed edge place, by `x`.
const EDGES_BY_X: [u8; 12] = [8, 5, 9, 1, 11, 7, 10, 3, 4, 6, 2, 0];

/// The same by `x'`.
const EDGES_BY_X_COUNTER: [u8; 12] = [11, 3, 10, 7, 8, 1, 9, 5, 0, 2, 6, 4];

/// The corner facelets on F and B, which come to U and D by `x` and by `x'`.
pub const TWISTS_ABOUT_X: [u8; 8] = [2, 1, 2, 1, 1, 2, 1, 2];

/// The renamed first edge facelets, by `x` and by `x'`.
pub const FLIPS_ABOUT_X: [u8; 12] = [0, 1, 0, 1, 0, 1, 0, 1, 0, 0, 0, 0];

/// The same by `y`.
pub const FLIPS_ABOUT_Y: [u8; 12] = [0, 0, 0, 0, 0, 0, 0, 0, 1, 1, 1, 1];

/// The corner facelets on R and L, which come to U and D by `z'`.
pub const TWISTS_ABOUT_Z: [u8; 8] = [1, 2, 1, 2, 2, 1, 2, 1];

pub const X_QUARTER: RenamingTable = RenamingTable {
    corners: RenamedPlaces {
        from: CORNERS_BY_X,
        to: CORNERS_BY_X_COUNTER,
        inward: TWISTS_ABOUT_X,
    },
    edges: RenamedPlaces {
        from: EDGES_BY_X,
        to: EDGES_BY_X_COUNTER,
        inward: FLIPS_ABOUT_X,
    },
};

pub const X_COUNTER: RenamingTable = RenamingTable {
    corners: RenamedPlaces {
        from: CORNERS_BY_X_COUNTER,
        to: CORNERS_BY_X,
        inward: TWISTS_ABOUT_X,
    },
    edges: RenamedPlaces {
        from: EDGES_BY_X_COUNTER,
        to: EDGES_BY_X,
        inward: FLIPS_ABOUT_X,
    },
};

pub const Y_QUARTER: RenamingTable = RenamingTable {
    corners: RenamedPlaces {
        from: [3, 0, 1, 2, 7, 4, 5, 6],
        to: [1, 2, 3, 0, 5, 6, 7, 4],
        inward: [0, 0, 0, 0, 0, 0, 0, 0],
    },
    edges: RenamedPlaces {
        from: [3, 0, 1, 2, 7, 4, 5, 6, 11, 8, 9, 10],
        to: [1, 2, 3, 0, 5, 6, 7, 4, 9, 10, 11, 8],
        inward: FLIPS_ABOUT_Y,
    },
};

pub const Z_COUNTER: RenamingTable = RenamingTable {
    corners: RenamedPlaces {
        from: [4, 0, 3, 7, 5, 1, 2, 6],
        to: [1, 5, 6, 2, 0, 4, 7, 3],
        inward: TWISTS_ABOUT_Z,
    },
    edges: RenamedPlaces {
        from: [4, 8, 0, 11, 6, 9, 2, 10, 5, 1, 3, 7],
        to: [2, 9, 6, 10, 0, 8, 4, 11, 1, 5, 7, 3],
        inward: [1, 1, 1, 1, 1, 1, 1, 1, 1, 1, 1, 1],
    },
};

/// The rotations by which a cube is renamed for a coordinate.
#[derive(Clone, Copy)]
pub enum Renaming {
    XCounter,
    XQuarter,
    YQuarter,
    ZCounter,
}

impl Renaming {
    /// The table of the renaming.
    pub fn table(self) -> &'static RenamingTable
        ensures { result.now ≡ renaming_table self }
    {
        match self {
            Renaming::XCounter => &X_COUNTER,
            Renaming::XQuarter => &X_QUARTER,
            Renaming::YQuarter => &Y_QUARTER,
            Renaming::ZCounter => &Z_COUNTER,
        }
    }

    /// The face to which it brings a face: the one that the inverse rotation (`x`, `x'`, `y'`, `z`) brings to its place.
    #[inline(always)]
    pub fn face(self, face: Face) -> Face
        ensures { result ≡ face_by self face }
    {
        match self {
            Renaming::XCounter => Axis::Rl.face_before(Power::Quarter, face),
            Renaming::XQuarter => Axis::Rl.face_before(Power::Counter, face),
            Renaming::YQuarter => Axis::Ud.face_before(Power::Counter, face),
            Renaming::ZCounter => Axis::Fb.face_before(Power::Quarter, face),
        }
    }
}
