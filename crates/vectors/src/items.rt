// Items of lists, and lists that are kept.
use std::fmt::Display;

// An unsigned integer type.
pub trait Item: Copy + Display {
    // How many bytes an item has.
    const BYTES: usize;

    // The number modulo 256^BYTES.
    fn of(number: usize) -> Self;

    // The item as a number.
    fn number(self) -> usize;
}

impl Item for u8 {
    const BYTES: usize = 1;

    fn of(number: usize) -> u8 {
        (number & 0xff) as u8
    }

    fn number(self) -> usize {
        self as usize
    }
}

impl Item for u16 {
    const BYTES: usize = 2;

    fn of(number: usize) -> u16 {
        (number & 0xffff) as u16
    }

    fn number(self) -> usize {
        self as usize
    }
}

impl Item for u32 {
    const BYTES: usize = 4;

    fn of(number: usize) -> u32 {
        (number & 0xffff_ffff) as u32
    }

    fn number(self) -> usize {
        self as usize
    }
}

impl Item for u64 {
    const BYTES: usize = 8;

    fn of(number: usize) -> u64 {
        number as u64
    }

    fn number(self) -> usize {
        self as usize
    }
}

// The first `count` items, or all if there are fewer.
pub fn first<T>(items: &[T], count: usize) -> &[T] {
    &items[..count.min(items.len())]
}

// The same, to be written.
fn first_mut<T>(items: &mut [T], count: usize) -> &mut [T] {
    let end = count.min(items.len());
    &mut items[..end]
}

// The same, to be written, with each byte of them 170.
pub fn lend<T: Item>(items: &mut [T], count: usize) -> &mut [T] {
    let lent = first_mut(items, count);
    for item in lent.iter_mut() {
        *item = T::of(0xaaaa_aaaa_aaaa_aaaa);
    }
    lent
}

// A list with room for N items.
#[derive(Drop)]
pub struct Kept<T, const N: usize> {
    room: [T; N],
    pub length: usize,
}

impl<T: Item, const N: usize> Kept<T, N> {
    // The list with no items.
    pub fn none() -> Kept<T, N> {
        Kept {
            room: [T::of(0); N],
            length: 0,
        }
    }

    // The items.
    pub fn items(&self) -> &[T] {
        first(&self.room, self.length)
    }

    // The items, to be written.
    pub fn items_mut(&mut self) -> &mut [T] {
        let room = &mut self.room;
        first_mut(&mut room[..], self.length)
    }

    // The items become `count`, or as many as there is room for, and are filled.
    pub fn lend(&mut self, count: usize) -> &mut [T] {
        self.length = count.min(N);
        let room = &mut self.room;
        lend(&mut room[..], count)
    }

    // The items become the numbers, or as many of them as there is room for.
    pub fn assign(&mut self, numbers: &[usize]) {
        self.length = numbers.len().min(N);
        for (item, &number) in self.items_mut().iter_mut().zip(numbers) {
            *item = T::of(number);
        }
    }

    // The items are cut, or lengthened by 0 as far as there is room.
    pub fn resize(&mut self, length: usize) {
        let end = length.min(N);
        for i in self.length..end {
            self.room[i] = T::of(0);
        }
        self.length = end;
    }

    // Item i becomes the number, if there is such an item.
    pub fn set(&mut self, i: usize, number: usize) {
        if let Some(item) = self.items_mut().get_mut(i) {
            *item = T::of(number);
        }
    }
}

// What requests make is kept for those after them.
#[derive(Drop)]
pub struct Store {
    pub table: Kept<u16, 4096>,
    pub image: Kept<u32, 131072>,
    pub marking: Kept<u8, 32768>,
    pub counts: Kept<u32, 32768>,
    pub enabled: Kept<u64, 512>,
    pub history: Kept<u32, 4096>,
    pub state: Kept<u16, 64>,
}

// Nothing is kept.
pub fn nothing() -> Store {
    Store {
        table: Kept::none(),
        image: Kept::none(),
        marking: Kept::none(),
        counts: Kept::none(),
        enabled: Kept::none(),
        history: Kept::none(),
        state: Kept::none(),
    }
}
