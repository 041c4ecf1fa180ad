// Arrays of small nests by hand, and shapes that don't fit.
ghost use Rattle.std.specs.Prelude.{◌≡◌};

use array_bind::bind::{Bound, bind};
use array_bind::shape::ShapeRefusal;
use loop_core::arrays::Arrays;
use loop_core::decl::{Decl, DeclKind, Form, Size, Source, size_of};
use loop_core::name::Name;
use loop_core::nest::Nest;
use mtx_read::matrix::read_matrix;
use sqlite_items::Items;
use std::alloc::Global;
use std::marker::Brand;
use std::process::Abort;
use std::sync::ledger::{Blank, Ledger};
use std::test::Fail;
use wave_base::steps::Steps;
use wave_base::types::ArrayId;
use wave_base::words::Words;

const VECTOR: DeclKind = DeclKind::Vector(Size::N, Source::File);

const ROWS: DeclKind = DeclKind::Matrix(Form::Csr);

const PLACES: DeclKind = DeclKind::Index(Size::NPlusOne);

// by rows:     by columns:
//   4 . 2        4 . .
//   . . 5        . . -7
//   . -7 1       2 5 1
const MATRIX: &[u8] =
    b"%%MatrixMarket matrix coordinate integer general\n3 3 5\n3 3 1\n1 3 2\n3 2 -7\n1 1 4\n2 3 5\n";

// One stored place, of two triples.
const TWICE: &[u8] = b"%%MatrixMarket matrix coordinate integer general\n2 2 2\n2 1 5\n2 1 -8\n";

const NO_ROWS: &[u8] = b"%%MatrixMarket matrix coordinate integer general\n0 0 0\n";

const WIDE: &[u8] = b"%%MatrixMarket matrix coordinate integer general\n2 3 1\n1 3 1\n";

fn nest_of(alloc: Global, kinds: &[DeclKind]) -> Result<Nest, Fail> {
    let mut decls = Items::new(alloc);
    for kind in kinds {
        decls.push(Decl {
            line: 1,
            name: Name::of(b"a").ok_or("a name is too long")?,
            kind: *kind,
        })?;
    }
    Ok(Nest {
        decls,
        props: Items::new(alloc),
        locals: Items::new(alloc),
        line: 2,
        name: Name::of(b"i").ok_or("a name is too long")?,
        body: Items::new(alloc),
    })
}

fn files_of(alloc: Global, lists: &[&[i64]]) -> Result<Vec<Words>, Fail> {
    let mut files = Vec::new(alloc);
    for list in lists {
        files.push(Words::from_vec(Vec::from_slice(alloc, *list)?))?;
    }
    Ok(files)
}

fn answer(
    alloc: Global,
    kinds: &[DeclKind],
    text: &[u8],
    lists: &[&[i64]],
) -> Result<Result<Bound, ShapeRefusal>, Fail> {
    let nest = nest_of(alloc, kinds)?;
    let files = files_of(alloc, lists)?;
    let Ok(triples) = read_matrix(alloc, text) else {
        return Err("a matrix isn't read".into());
    };
    if size_of(nest.decls.as_slice(), ArrayId(64)).is_some() || files.len() > 64 {
        return Err("too many arrays".into());
    }
    Ok(bind(alloc, &nest, triples, files))
}

fn entries<L: Ledger>(
    alloc: Global,
    arrays: &Arrays,
    array: ArrayId,
    blank: Blank,
) -> Result<Vec<i64>, Fail>
    requires name { blank.name ≡ L.name }
    requires parts { blank.parts ≡ L.parts }
    requires some { blank.parts ≡ 1 }
{
    let mut steps = Steps::<L>::open(blank);
    let mut entries = Vec::new(alloc);
    for at in 0..arrays.len(array) {
        entries.push(arrays.at(array, at as i128, &mut steps))?;
    }
    Ok(entries)
}

fn index_words(alloc: Global, arrays: &Arrays, array: ArrayId) -> Result<Vec<i64>, Fail> {
    entries::<Brand>(alloc, arrays, array, Blank::new(1))
}

// The arrays that declarations have over a matrix and files: a list for each array number.
#[derive(Clone, Copy)]
struct Fit<'a> {
    kinds: &'a [DeclKind],
    text: &'a [u8],
    files: &'a [&'a [i64]],
    n: u32,
    nnz: u32,
    index: &'a [&'a [i64]],
    values: &'a [&'a [i64]],
}

// The list of an array, and an empty one past the last.
fn list_at<'a>(lists: &[&'a [i64]], array: u8) -> &'a [i64] {
    match lists.get(array as usize) {
        Some(list) => list,
        None => &[],
    }
}

fn try_fit(rt: &impl Abort, alloc: Global, fit: &Fit<'_>) -> Result<(), Fail> {
    let Ok(bound) = answer(alloc, fit.kinds, fit.text, fit.files)? else {
        return Err("a shape is refused".into());
    };
    assert_eq!(rt; bound.arrays.n(), fit.n);
    assert_eq!(rt; bound.arrays.nnz(), fit.nnz);
    for array in 0..8 {
        let places = index_words(alloc, &bound.arrays, ArrayId(array))?;
        let words = bound.values.words(ArrayId(array));
        assert_eq!(rt;
            places.as_slice(),
            list_at(fit.index, array),
            "index array {array}"
        );
        assert_eq!(rt; words, list_at(fit.values, array), "data array {array}");
    }
    Ok(())
}

#[test]
fn arrays_by_rows(rt: HostRuntime) -> Result<(), Fail> {
    let fit = Fit {
        kinds: &[
            VECTOR,
            PLACES,
            ROWS,
            DeclKind::Vector(Size::Nnz, Source::Zeros),
        ],
        text: MATRIX,
        files: &[&[7, -8, 9], &[0, 1, 1, 3]],
        n: 3,
        nnz: 5,
        index: &[
            &[],
            &[0, 1, 1, 3],
            &[0, 2, 3, 5],
            &[0, 2, 2, 1, 2],
            &[0, 2, 4],
            &[],
            &[],
        ],
        values: &[&[7, -8, 9], &[], &[], &[], &[], &[4, 2, 5, -7, 1], &[0; 5]],
    };
    try_fit(&rt, rt.alloc(), &fit)
}

#[test]
fn arrays_by_columns(rt: HostRuntime) -> Result<(), Fail> {
    let fit = Fit {
        kinds: &[
            DeclKind::Vector(Size::N, Source::Zeros),
            DeclKind::Matrix(Form::Csc),
            DeclKind::Vector(Size::Nnz, Source::File),
            DeclKind::Index(Size::N),
        ],
        text: MATRIX,
        files: &[&[1, 2, 3, 4, 5], &[2, 0, 1]],
        n: 3,
        nnz: 5,
        index: &[
            &[],
            &[0, 1, 2, 5],
            &[0, 2, 0, 1, 2],
            &[0, 1, 4],
            &[],
            &[],
            &[2, 0, 1],
        ],
        values: &[
            &[0, 0, 0],
            &[],
            &[],
            &[],
            &[4, -7, 2, 5, 1],
            &[1, 2, 3, 4, 5],
            &[],
        ],
    };
    try_fit(&rt, rt.alloc(), &fit)
}

#[test]
fn a_matrix_alone_takes_no_file(rt: HostRuntime) -> Result<(), Fail> {
    let fit = Fit {
        kinds: &[ROWS],
        text: MATRIX,
        files: &[],
        n: 3,
        nnz: 5,
        index: &[&[0, 2, 3, 5], &[0, 2, 2, 1, 2], &[0, 2, 4], &[]],
        values: &[&[], &[], &[], &[4, 2, 5, -7, 1]],
    };
    try_fit(&rt, rt.alloc(), &fit)
}

#[test]
fn entries_are_counted_by_stored_places(rt: HostRuntime) -> Result<(), Fail> {
    let fit = Fit {
        kinds: &[DeclKind::Index(Size::Nnz), ROWS],
        text: TWICE,
        files: &[&[6]],
        n: 2,
        nnz: 1,
        index: &[&[6], &[0, 0, 1], &[0], &[0, 1], &[]],
        values: &[&[], &[], &[], &[], &[-3]],
    };
    try_fit(&rt, rt.alloc(), &fit)
}

#[test]
fn a_matrix_without_rows(rt: HostRuntime) -> Result<(), Fail> {
    let fit = Fit {
        kinds: &[
            PLACES,
            ROWS,
            VECTOR,
            DeclKind::Vector(Size::NPlusOne, Source::Zeros),
        ],
        text: NO_ROWS,
        files: &[&[8], &[]],
        n: 0,
        nnz: 0,
        index: &[&[8], &[0], &[], &[], &[], &[], &[]],
        values: &[&[], &[], &[], &[], &[], &[], &[0]],
    };
    try_fit(&rt, rt.alloc(), &fit)
}

// A matrix and files beside declarations, and the first shape that doesn't fit.
#[derive(Clone, Copy)]
struct Misfit<'a> {
    kinds: &'a [DeclKind],
    text: &'a [u8],
    files: &'a [&'a [i64]],
    why: ShapeRefusal,
}

fn try_misfits(rt: &impl Abort, alloc: Global, misfits: &[Misfit<'_>]) -> Result<(), Fail> {
    for misfit in misfits {
        let why = answer(alloc, misfit.kinds, misfit.text, misfit.files)?.err();
        assert_eq!(rt; why, Some(misfit.why));
    }
    Ok(())
}

#[test]
fn a_matrix_that_is_not_square_goes_before_files(rt: HostRuntime) -> Result<(), Fail> {
    let why = ShapeRefusal::NotSquare {
        rows: 2,
        columns: 3,
    };
    let kinds = [ROWS, VECTOR];
    let lists: [&[&[i64]]; 4] = [&[&[1, 2]], &[], &[&[1]], &[&[1, 2], &[1, 2]]];
    for files in lists {
        let misfit = Misfit {
            kinds: &kinds,
            text: WIDE,
            files,
            why,
        };
        try_misfits(&rt, rt.alloc(), &[misfit])?;
    }
    Ok(())
}

#[test]
fn another_number_of_files_goes_before_lengths(rt: HostRuntime) -> Result<(), Fail> {
    let kinds = [
        VECTOR,
        ROWS,
        DeclKind::Vector(Size::N, Source::Zeros),
        PLACES,
    ];
    let table: [(&[&[i64]], u32); 4] = [
        (&[], 0),
        (&[&[1, 2, 3]], 1),
        (&[&[1], &[2], &[3]], 3),
        (&[&[1, 2, 3], &[0, 1, 1, 3], &[0, 0, 0], &[]], 4),
    ];
    for (files, have) in table {
        let misfit = Misfit {
            kinds: &kinds,
            text: MATRIX,
            files,
            why: ShapeRefusal::Files { have, want: 2 },
        };
        try_misfits(&rt, rt.alloc(), &[misfit])?;
    }
    let alone = Misfit {
        kinds: &[ROWS],
        text: MATRIX,
        files: &[&[]],
        why: ShapeRefusal::Files { have: 1, want: 0 },
    };
    try_misfits(&rt, rt.alloc(), &[alone])
}

#[test]
fn the_first_file_of_another_length_is_named(rt: HostRuntime) -> Result<(), Fail> {
    let kinds = [
        DeclKind::Vector(Size::NPlusOne, Source::Zeros),
        VECTOR,
        ROWS,
        PLACES,
        DeclKind::Vector(Size::Nnz, Source::File),
        DeclKind::Index(Size::Nnz),
    ];
    let table: [(&[&[i64]], u32, u64, u64); 6] = [
        (&[&[1, 2], &[0; 4], &[0; 5], &[0; 5]], 0, 2, 3),
        (&[&[0; 4], &[0; 3], &[0; 5], &[0; 5]], 0, 4, 3),
        (&[&[0; 3], &[0; 3], &[0; 5], &[0; 5]], 1, 3, 4),
        (&[&[0; 3], &[0; 5], &[], &[]], 1, 5, 4),
        (&[&[0; 3], &[0; 4], &[], &[0; 6]], 2, 0, 5),
        (&[&[0; 3], &[0; 4], &[0; 5], &[0; 6]], 3, 6, 5),
    ];
    for (files, file, have, want) in table {
        let misfit = Misfit {
            kinds: &kinds,
            text: MATRIX,
            files,
            why: ShapeRefusal::Length { file, have, want },
        };
        try_misfits(&rt, rt.alloc(), &[misfit])?;
    }
    Ok(())
}

#[test]
fn lengths_are_those_of_the_matrix(rt: HostRuntime) -> Result<(), Fail> {
    let misfits = [
        Misfit {
            kinds: &[ROWS, DeclKind::Index(Size::Nnz)],
            text: TWICE,
            files: &[&[0, 0]],
            why: ShapeRefusal::Length {
                file: 0,
                have: 2,
                want: 1,
            },
        },
        Misfit {
            kinds: &[PLACES, ROWS],
            text: NO_ROWS,
            files: &[&[]],
            why: ShapeRefusal::Length {
                file: 0,
                have: 0,
                want: 1,
            },
        },
        Misfit {
            kinds: &[ROWS, VECTOR],
            text: NO_ROWS,
            files: &[&[0]],
            why: ShapeRefusal::Length {
                file: 0,
                have: 1,
                want: 0,
            },
        },
    ];
    try_misfits(&rt, rt.alloc(), &misfits)
}
