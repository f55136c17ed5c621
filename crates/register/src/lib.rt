// The ranked register of one box, by value: Figure 3 of the paper, as document 01's section "The box routine" and wish 2 of document 02
// read it.
#![tactic(auto)]

ghost use Rattle.std.specs.Prelude.{◌≡◌, eqb, not, count_by};
ghost use Rattle.base.specs.Choice.{when◌then◌else◌};
ghost use Rattle.register.specs.declared.Department.TheVariants.{Sails, Canvas};
ghost use Rattle.register.specs.declared.StorageBox.{StorageBox};
ghost use Rattle.register.specs.Register.{of_department, departments_with, outranks, takes, rmw_read, rmw_write};

use suits::Suit;

// A department of the loft (wish 6 of document 02): each has a record of its own in every box.
#[derive(Clone, Copy)]
pub enum Department {
    Sails,
    Canvas,
}

// Its byte: 0 sails, 1 canvas.
impl From<Department> for u8 {
    ghost from_gives = { λ d b. b ≡ of_department d 0 1 };

    fn from(d: Department) -> u8 {
        match d {
            Department::Sails => 0,
            Department::Canvas => 1,
        }
    }
}

// The department of a byte: 0 is sails, any other canvas.
impl From<u8> for Department {
    ghost from_gives = { λ b d. d ≡ (when eqb b 0 then Sails else Canvas) };

    #[tactic(auto, using(base::proofs::Tests::picks))]
    fn from(byte: u8) -> Department {
        if byte == 0 {
            return Department::Sails;
        }
        Department::Canvas
    }
}

// One thing of each department.
#[derive(Clone, Copy)]
pub struct ByDepartment<T> {
    pub sails: T,
    pub canvas: T,
}

impl<T: Copy> ByDepartment<T> {
    // The one of the department.
    pub fn of(self, d: Department) -> T
        ensures { result ≡ of_department d self.sails self.canvas }
    {
        match d {
            Department::Sails => self.sails,
            Department::Canvas => self.canvas,
        }
    }

    // With the department's replaced: that of the other stays.
    pub fn with(self, d: Department, x: T) -> ByDepartment<T>
        ensures { result ≡ departments_with d x self }
    {
        match d {
            Department::Sails => ByDepartment { sails: x, ..self },
            Department::Canvas => ByDepartment { canvas: x, ..self },
        }
    }
}

// What a box keeps: Figure 3's x, with rR (read), wR (write) and val (value). All are 0 at first.
#[derive(Clone, Copy)]
pub struct Register {
    pub read: u32,
    pub write: u32,
    pub value: Suit,
}

// A box: a ranked register for each department, and whether it is away (wish 8 of document 02), which both share.
#[derive(Clone, Copy)]
pub struct StorageBox {
    pub registers: ByDepartment<Register>,
    pub away: bool,
}

// What a read is answered: the write rank and the value that are held.
#[derive(Clone, Copy)]
pub struct Answer {
    pub rank: u32,
    pub value: Suit,
}

// A read: the register after it, and its answer. There is none where a higher rank was served (the nack of a phase 1).
#[derive(Clone, Copy)]
pub struct ReadDone {
    pub register: Register,
    pub answer: Option<Answer>,
}

// A write: the register after it, and its answer, whether it was taken. No Option: the register stands there on either answer, and `taken`
// is the whole of it.
#[derive(Clone, Copy)]
pub struct WriteDone {
    pub register: Register,
    pub taken: bool,
}

// How many of the boxes are not away.
pub fn count_going(boxes: &[StorageBox]) -> usize
    ensures { result ≡ count_by (λ (x : StorageBox). not x.away) boxes.now }
{
    boxes.iter().filter(|x| !x.away).count()
}

impl Register {
    // Whether the read rank or the write rank is above this one.
    #[tactic(auto, using(base::proofs::Tests::picks), unfolding(crate::specs::Register::outranks))]
    fn outranks(self, rank: u32) -> bool
        ensures { result ≡ outranks self rank }
    {
        rank < self.read || rank < self.write
    }

    // Figure 3's rmw-read: the read rank becomes the rank. A read that is outranked changes nothing.
    #[tactic(auto, using(crate::proofs::RegisterLaws::reads, base::proofs::Tests::tests))]
    pub fn rmw_read(self, rank: u32) -> ReadDone
        ensures { result ≡ rmw_read self rank }
    {
        if self.outranks(rank) {
            return ReadDone {
                register: self,
                answer: None,
            };
        }
        let held = Answer {
            rank: self.write,
            value: self.value,
        };
        ReadDone {
            register: Register { read: rank, ..self },
            answer: Some(held),
        }
    }

    // Whether a write of this rank is taken.
    #[tactic(auto, using(base::proofs::Tests::picks), unfolding(crate::specs::Register::takes))]
    fn takes(self, rank: u32) -> bool
        ensures { result ≡ takes self rank }
    {
        self.read <= rank && self.write < rank
    }

    // Figure 3's rmw-write: a write that is taken sets the write rank and the value, any other changes nothing.
    #[tactic(auto, using(base::proofs::Tests::picks), unfolding(crate::specs::Register::rmw_write))]
    pub fn rmw_write(self, rank: u32, revision: Suit) -> WriteDone
        ensures { result ≡ rmw_write self rank revision }
    {
        if self.takes(rank) {
            return WriteDone {
                register: Register {
                    write: rank,
                    value: revision,
                    ..self
                },
                taken: true,
            };
        }
        WriteDone {
            register: self,
            taken: false,
        }
    }
}
