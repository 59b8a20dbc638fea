ghost use Rattle.std.specs.Prelude.{◌≡◌, min, pos, unwrap_or, slice_index, slice_index_or};
ghost use Rattle.align_guides.specs.Lengths.{IsProposal};

use super::*;

/// Two views with a width that they give up where less is offered, and a height and a guide that they keep. They count
/// how often they were asked for a size, and may want memory at one of these calls.
#[derive(Clone, Copy)]
struct Pair {
    widths: [u16; 2],
    heights: [u16; 2],
    guides: [i16; 2],
    asked: u32,
    wants_at: u32,
    refusals: u64,
}

impl Sizes for Pair {
    ghost views = { λ t. record {
      count = 2;
      size = λ i p. record { w = min (slice_index t.widths i) (unwrap_or p.w 1000000); h = slice_index t.heights i };
      guide = λ i axis s. slice_index_or t.guides i (pos 0);
    } };

    ghost refusals = { λ t. t.refusals };

    fn size(&mut self, child: usize, p: Proposal) -> Result<Size, OutOfMemory> {
        self.asked = self.asked.saturating_add(1);
        if self.asked == self.wants_at {
            self.refusals = self.refusals.saturating_add(1);
            return Err(OutOfMemory);
        }
        Ok(Size {
            w: u32::from(self.widths[child]).min(p.w.unwrap_or(LIMIT)),
            h: u32::from(self.heights[child]),
        })
    }

    fn guide(&self, child: usize, _axis: Axis, _size: Size) -> i64 {
        i64::from(self.guides[child])
    }
}

fn make_pair(widths: [u16; 2], heights: [u16; 2], guides: [i16; 2]) -> Pair {
    Pair {
        widths,
        heights,
        guides,
        asked: 0,
        wants_at: 0,
        refusals: 0,
    }
}

fn slot(place: usize, priority: i64) -> Slot
    ensures { result.place ≡ place }
{
    Slot {
        priority,
        flex: 0,
        place,
        size: Size { w: 0, h: 0 },
    }
}

fn proposal(w: Option<u16>, h: u16) -> Proposal
    ensures { IsProposal result }
{
    let h = Some(u32::from(h));
    match w {
        None => Proposal { w: None, h },
        Some(w) => Proposal {
            w: Some(u32::from(w)),
            h,
        },
    }
}

#[test]
fn stacks(rt: HostRuntime) {
    let row = make_pair([6, 2], [1, 1], [0, 0]);
    let even = make_pair([5, 5], [1, 1], [0, 0]);
    let set = make_pair([6, 2], [1, 3], [0, 2]);
    let table = [
        // views, axis, spacing, priorities, proposed width: widths, and the stack's size
        (
            row,
            Axis::H,
            0,
            [0, 0],
            Some(6),
            [4, 2],
            Size { w: 6, h: 1 },
        ),
        (
            row,
            Axis::H,
            0,
            [1, 0],
            Some(6),
            [6, 0],
            Size { w: 6, h: 1 },
        ),
        (
            row,
            Axis::H,
            1,
            [0, 0],
            Some(6),
            [3, 2],
            Size { w: 6, h: 1 },
        ),
        (
            row,
            Axis::H,
            1,
            [-1, 0],
            Some(3),
            [0, 2],
            Size { w: 3, h: 1 },
        ),
        (row, Axis::H, 3, [0, 0], None, [6, 2], Size { w: 11, h: 1 }),
        (
            even,
            Axis::H,
            0,
            [0, 0],
            Some(5),
            [2, 3],
            Size { w: 5, h: 1 },
        ),
        (
            set,
            Axis::V,
            1,
            [0, 0],
            Some(6),
            [6, 2],
            Size { w: 8, h: 5 },
        ),
        (
            set,
            Axis::Z,
            9,
            [0, 0],
            Some(6),
            [6, 2],
            Size { w: 8, h: 3 },
        ),
    ];
    for (views, axis, spacing, priorities, w, widths, size) in table {
        let mut views = views;
        let mut slots = [slot(0, priorities[0]), slot(1, priorities[1])];
        let spacing: u16 = spacing;
        let answer = plan(
            axis,
            u32::from(spacing),
            &mut slots,
            &mut views,
            proposal(w, 1),
        );
        assert_eq!(rt; answer, Ok(size), "{axis:?} {w:?}");
        assert_eq!(rt; slots[0].size.w, widths[0], "{axis:?} {w:?}");
        assert_eq!(rt; slots[1].size.w, widths[1], "{axis:?} {w:?}");
    }
}

// Each view is asked three times where lengths are shared, and once elsewhere.
#[test]
fn questions(rt: HostRuntime) {
    for (axis, w, asked) in [
        (Axis::H, Some(6), 6),
        (Axis::H, None, 2),
        (Axis::Z, Some(6), 2),
    ] {
        let mut views = make_pair([6, 2], [1, 1], [0, 0]);
        let mut slots = [slot(0, 0), slot(1, 0)];
        let answer = plan(axis, 0, &mut slots, &mut views, proposal(w, 1));
        assert!(rt; answer.is_ok());
        assert_eq!(rt; views.asked, asked);
    }
}

#[test]
fn wants_memory(rt: HostRuntime) {
    for wants_at in 1..7 {
        let mut views = make_pair([6, 2], [1, 1], [0, 0]);
        views.wants_at = wants_at;
        let mut slots = [slot(0, 0), slot(1, 0)];
        let answer = plan(Axis::H, 0, &mut slots, &mut views, proposal(Some(6), 1));
        assert!(rt; answer.is_err());
        assert_eq!(rt; views.refusals, 1);
    }
}

#[test]
fn spacings(rt: HostRuntime) {
    assert_eq!(rt; gaps(3, 0), 0);
    assert_eq!(rt; gaps(3, 4), 9);
    assert_eq!(rt; gaps(1_000_000, 3), 1_000_000);
}
