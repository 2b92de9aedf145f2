//! The weight matrices and the scales.

ghost use Rattle.std.specs.Prelude.{◌≡◌, ◌≤◌, ◌<◌, ◌↔◌, IsSome, IfSome};
ghost use Rattle.prores_scan.specs.WeightsAndScales.{weight_at, AreWeights, AreSmall, scale_of};

/// The weight matrix of a kind, in raster order: kind 0 where a frame loads none (RDD 36), every
/// other kind our own.
pub fn weights(kind: u8, chroma: bool) -> [u8; 64]
    ensures weights { AreWeights kind chroma result }
    ensures small { AreSmall result }
{
    let mut matrix = [4; 64];
    for p in 0..64 {
        matrix[p] = weight(kind, chroma, p as u8 / 8, p as u8 % 8);
    }
    matrix
}

fn weight(kind: u8, chroma: bool, row: u8, column: u8) -> u8
    requires row { row < 8 }
    requires column { column < 8 }
    ensures weight { result ≡ weight_at kind chroma row column }
    ensures least { 4 ≤ result }
    ensures most { result ≤ 18 }
{
    if kind == 0 {
        4
    } else if chroma {
        4 + row + column
    } else {
        4 + (row + column) / 2
    }
}

/// What a slice's index stands for (RDD 36).
pub fn scale(index: u8) -> Option<u16>
    ensures accepted { IsSome result ↔ ((1 ≤ index) × (index ≤ 224)) }
    ensures scale { IfSome result (λ s. s ≡ scale_of index) }
    ensures small { IfSome result (λ s. (1 ≤ s) × (s ≤ 512)) }
{
    match index {
        1..=128 => Some(u16::from(index)),
        129..=224 => Some(128 + 4 * (u16::from(index) - 128)),
        _ => None,
    }
}

#[cfg(test)]
mod tests {
    use super::*;

    #[test]
    fn the_scale_grows_in_fours_above_128(rt: HostRuntime) {
        // docs/formats/frames.md, "Quantiser"
        let rows = [
            (0, None),
            (1, Some(1)),
            (128, Some(128)),
            (129, Some(132)),
            (224, Some(512)),
            (225, None),
        ];
        for (index, want) in rows {
            assert_eq!(rt; scale(index), want, "at {index}");
        }
    }

    #[test]
    fn our_own_weights_grow_along_the_diagonal(rt: HostRuntime) {
        // chroma, raster place, weight
        let rows = [
            (false, 0, 4),
            (false, 1, 4),
            (false, 9, 5),
            (false, 63, 11),
            (true, 8, 5),
            (true, 63, 18),
        ];
        for (chroma, p, want) in rows {
            let matrix: [u8; 64] = weights(1, chroma);
            assert_eq!(rt; matrix[p], want, "at {p}");
        }
        assert_eq!(rt; weights(0, true), [4; 64]);
    }
}
