// A list that passed the check with its number of vertices.
ghost use Rattle.std.specs.Prelude.{◌≡◌, length};
ghost use Rattle.list.specs.Faces.{faces as faces_of, corners as corners_of};
ghost use Rattle.list.specs.Check.{check_of};

#[derive(Clone, Copy)]
pub struct ValidList<'a> {
    pub entries: &'a [i32],
    pub vertices: usize,
    pub faces: usize,
    pub corners: usize,
    ghost accepted: { (check_of entries.now vertices).code ≡ 0 },
    ghost faces_counted: { faces ≡ length (faces_of entries.now) },
    ghost corners_counted: { corners ≡ length (corners_of entries.now) },
}
